// What a % begins (RULES 4): the table of conversions, the composites' own formats, and what stands after a %.
#![tactic(auto)]

mod conversions;
mod following;

pub use conversions::{Conversion, Form, conversion_of};
pub use following::{
    Act, CONVERSIONS, Piece, Style, begins_seconds, conversion, holds, is_flag, is_read,
    own_format, read_letter, styled, takes_style,
};
