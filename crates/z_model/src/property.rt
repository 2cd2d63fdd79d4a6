// The properties of objects.

/// A property of an object: its number, where its bytes begin, and how many they are.
#[derive(Clone, Copy, Debug, PartialEq, Eq)]
pub struct Property {
    pub number: u8,
    pub at: u16,
    pub size: u8,
}
