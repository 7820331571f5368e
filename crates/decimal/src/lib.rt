// Numbers as text, read and put: one number, the number reader, a line of numbers.
#![tactic(auto)]

pub mod item;
pub mod line;
pub mod number;
pub mod print;
pub mod reader;

pub use item::Item;
pub use number::Reading;
pub use print::Text;
pub use reader::NumberReader;
