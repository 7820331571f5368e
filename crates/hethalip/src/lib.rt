// The C interface: each routine under a fixed name, its answer packed into one number.
#![tactic(auto)]

mod pack;

ghost use Rattle.minuska.specs.Contract.{CheckTableContract, CheckConfigurationContract, MatchRuleContract, ReasonsContract, StepContract, StepByRuleContract, RunContract, ReplayContract};
ghost use Rattle.hethalip.specs.Pack.{pack_check, pack_match, pack_reasons, pack_step, pack_run, pack_replay, Packs};

use crate::pack::packed;

// The check of a table.
#[unsafe(no_mangle)]
#[tactic(auto, using(crate::proofs::SaysLaw::check_packed))]
pub extern "C" fn hethalip_check_table(table: &[i64]) -> u64
    ensures { Packs pack_check (CheckTableContract table.now) result }
{
    packed(table::check_table(table))
}

// The check of a configuration.
#[unsafe(no_mangle)]
#[tactic(auto, using(crate::proofs::SaysLaw::check_packed))]
pub extern "C" fn hethalip_check_configuration(configuration: &[i64]) -> u64
    ensures { Packs pack_check (CheckConfigurationContract configuration.now) result }
{
    packed(term::check_configuration(configuration))
}

// A rule's left matched against the configuration.
#[unsafe(no_mangle)]
#[tactic(auto, using(crate::proofs::SaysLaw::match_packed))]
pub extern "C" fn hethalip_match(table: &[i64], configuration: &[i64], rule: usize) -> u64
    ensures { Packs pack_match (MatchRuleContract table.now configuration.now rule) result }
{
    packed(step::match_rule(table, configuration, rule))
}

// Why each rule does not apply to a stuck configuration: two words for each in the list.
#[unsafe(no_mangle)]
#[tactic(auto, using(crate::proofs::SaysLaw::reasons_packed))]
pub extern "C" fn hethalip_reasons(table: &[i64], configuration: &[i64], list: &mut [i64]) -> u64
    ensures { Packs pack_reasons (ReasonsContract table.now configuration.now list.old list.new) result }
{
    packed(step::reasons(table, configuration, list))
}

// The step.
#[unsafe(no_mangle)]
#[tactic(auto, using(crate::proofs::SaysLaw::step_packed))]
pub extern "C" fn hethalip_step(table: &[i64], configuration: &[i64], out: &mut [i64]) -> u64
    ensures { Packs pack_step (StepContract table.now configuration.now out.old out.new) result }
{
    packed(step::step(table, configuration, out))
}

// The step by one given rule.
#[unsafe(no_mangle)]
#[tactic(auto, using(crate::proofs::SaysLaw::step_packed))]
pub extern "C" fn hethalip_step_by_rule(
    table: &[i64],
    configuration: &[i64],
    rule: usize,
    out: &mut [i64],
) -> u64
    ensures { Packs pack_step (StepByRuleContract table.now configuration.now rule out.old out.new) result }
{
    packed(step::step_by_rule(table, configuration, rule, out))
}

// The run: the limit is in nodes.
#[unsafe(no_mangle)]
#[tactic(auto, using(crate::proofs::SaysLaw::run_packed))]
pub extern "C" fn hethalip_run(
    table: &[i64],
    configuration: &[i64],
    budget: u64,
    limit: u64,
    out: &mut [i64],
    spare: &mut [i64],
) -> u64
    ensures { Packs pack_run (RunContract table.now configuration.now budget limit out.old spare.old out.new spare.new) result }
{
    let (steps, nodes) = (budget as usize, limit as usize);
    packed(run::run(table, configuration, steps, nodes, out, spare))
}

// The replay: the limit is in nodes.
#[unsafe(no_mangle)]
#[tactic(auto, using(crate::proofs::SaysLaw::replay_packed))]
pub extern "C" fn hethalip_replay(
    table: &[i64],
    configuration: &[i64],
    log: &[u16],
    limit: u64,
    out: &mut [i64],
    choices: &mut [u16],
    work: &mut [i64],
) -> u64
    ensures { Packs pack_replay (ReplayContract table.now configuration.now log.now limit out.old choices.old work.old out.new choices.new work.new) result }
{
    let nodes = limit as usize;
    packed(replay::replay(table, configuration, log, nodes, out, choices, work))
}
