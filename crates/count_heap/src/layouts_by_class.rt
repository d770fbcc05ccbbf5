//! How the fields of each class lie side by side in memory, worked out once for a module's types.
//! It knows of no object and no value.
mod field_place;
mod fields;
mod layouts;
mod places;

pub use field_place::FieldPlace;
pub use layouts::ClassLayouts;
