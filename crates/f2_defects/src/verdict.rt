// What a check answers.
use crate::collector::Defect;

/// What a check found.
#[derive(Drop)]
pub enum Verdict {
    /// The image meets every rule.
    Clean,
    /// The least rule that the image fails, the first 64 of its defects in the order of part, `a` and `b`, and how many there
    /// are.
    Defects {
        rule: u8,
        list: Vec<Defect>,
        count: u64,
    },
}
