//! The time axis of a trace or a picture.

/// Which number is the time of an entry, in a trace in microseconds.
#[derive(Clone, Copy, Debug, PartialEq, Eq)]
pub enum TimeScale {
    /// The moment that the caller named.
    Moments,
    /// The same, where the moments are the lines of a script.
    Lines,
    /// The entry's position in its slot's list.
    Entries,
}
