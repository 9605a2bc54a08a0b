/// The rules that a row of input can break, by their numbers from 1 to 9.
#[derive(Clone, Copy, Debug, PartialEq, Eq, Hash)]
pub enum Reason {
    /// The first field names no record.
    Kind = 1,
    /// The count of fields is wrong.
    Fields = 2,
    /// A field is no number.
    Number = 3,
    /// A number lies outside its range.
    Range = 4,
    /// A setting is unknown or stands twice.
    Key = 5,
    /// A setting comes after the settings were closed.
    Late = 6,
    /// There is no such station, or a line leads to its sender.
    Station = 7,
    /// The row comes too late or too early among the others.
    Order = 8,
    /// The settings as a whole are refused.
    Settings = 9,
}
