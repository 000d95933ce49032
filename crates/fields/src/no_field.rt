// Why a number cannot be written as a field.
#[derive(Clone, Copy, PartialEq, Eq, Debug, Drop)]
pub enum NoField {
    // the number has more than six digits
    SevenDigits,
    // the place is not six bytes long
    OtherLength,
}
