// What is wrong with a line.

/// A line can't be played. It isn't dropped without a report.
pub(crate) struct Wrong {}

impl<E: Drop> From<E> for Wrong {
    fn from(_: E) -> Wrong {
        Wrong {}
    }
}
