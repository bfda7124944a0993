/// A date and a time of day, in no zone.
#[derive(Clone, Copy)]
pub struct LocalTime {
    /// The year, at most 9999.
    pub year: u16,
    /// The month, of which January is 1.
    pub month: u16,
    /// The day of the month, of which the first is 1.
    pub day: u16,
    /// The hour of the day, from 0.
    pub hour: u16,
    /// The minute of the hour, from 0.
    pub minute: u16,
    /// The second of the minute, from 0.
    pub second: u16,
}
