/// What a copier has done.
#[derive(Clone, Copy, Debug, PartialEq, Eq)]
pub enum Step {
    /// Unit `k` was written. It is recorded once its window is closed.
    Unit { k: u64 },
    /// Unit `k` was recorded already. Where its range has a digest, it was read from the target.
    Kept { k: u64 },
    /// Range `r` was compared with its digest, where it has one, and was recorded.
    Range { r: u64 },
    /// Nothing: every range is recorded.
    Done,
}
