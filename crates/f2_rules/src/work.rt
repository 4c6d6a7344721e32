// What is found of an image while its rules are looked at one after the other.
use f2_areas::Totals;
use f2_files::Kept;
use f2_sum::SitEntry;
use f2_survey::Nodes;

/// What the rules from the fourth on look at: what is kept of the nodes and of the files, what they sum up to, and the
/// entries of all main segments in the segment table.
pub struct Work {
    pub nodes: Nodes,
    pub kept: Kept,
    pub totals: Totals,
    pub entries: Vec<SitEntry>,
}

// One call wherever a `Work` goes out of scope.
impl Drop for Work {
    fn drop(self) {
        let Work {
            nodes: _,
            kept: _,
            totals: _,
            entries: _,
        } = self;
    }
}
