// The names of weekdays, months and halves of the day: as they are written, the forms in which they are read, letter case.
#![tactic(auto)]

mod names;

pub use names::{
    Case, NameForm, NameRead, Names, fold, name_length, place_for, read_name, value_at, write_name,
};
