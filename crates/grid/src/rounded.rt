// A value that was rounded, and whether rounding changed it.
#[derive(Clone, Copy, PartialEq, Eq, Debug)]
pub struct Rounded<T> {
    pub value: T,
    pub inexact: bool,
}
