// What a tagged text is made of.
ghost use Rattle.std.specs.Prelude.{◌≡◌};
ghost use Rattle.nested.specs.Classes.{class_of, class_number};

// The class of a byte outside tags.
#[derive(Clone, Copy, Debug, PartialEq, Eq)]
pub enum Class {
    Space,
    Digit,
    Other,
}

impl From<u8> for Class {
    ghost from_gives = { λ byte class. class ≡ class_of byte };

    fn from(byte: u8) -> Class {
        match byte {
            0x09 | 0x0a | 0x0d | 0x20 => Class::Space,
            0x30..=0x39 => Class::Digit,
            _ => Class::Other,
        }
    }
}

impl From<Class> for u8 {
    ghost from_gives = { λ class number. number ≡ class_number class };

    fn from(class: Class) -> u8 {
        class as u8
    }
}

// A byte of text, by its class; or a tag, by its number on the sheet. A mark stands alone.
// The number is the place of the tag's name in the sheet's list, which a type of its own would only wrap.
#[derive(Clone, Copy, Debug, PartialEq, Eq)]
pub enum Token {
    Text(Class),
    Mark(u8),
    Opening(u8),
    Closing(u8),
}
