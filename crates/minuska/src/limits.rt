// Document 01's limits, each named once for the code; specs/Rule has them for the meaning.

// "A configuration is .. at most 32,768 nodes", and so is a limit of a run or a replay.
pub const MAX_NODES: usize = 32768;

pub const MAX_CONFIGURATION_WORDS: usize = 2 * MAX_NODES;

// "A table starts with its rule count, 0 to 256." "At most 65,536 words."
pub const MAX_RULES: usize = 256;

pub const MAX_TABLE_WORDS: usize = 65536;

// "condition count (0 to 8)"; "Each term or expression has at most 512 nodes."
pub const MAX_CONDITIONS: usize = 8;

pub const MAX_TERM_NODES: usize = 512;

pub const MAX_TERM_WORDS: usize = 2 * MAX_TERM_NODES;

// "action (0 to 65,535)"
pub const MAX_ACTION: usize = 65535;

// "budget of 0 to 1,000,000 steps"; "log of 0 to 4,096 actions"
pub const MAX_STEPS: usize = 1000000;

pub const MAX_ACTIONS: usize = 4096;
