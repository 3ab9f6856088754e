// Finite fields by codes: the interface, and the three fields that come with the product.
#![tactic(auto)]

pub use field::Field;
pub use nine::Nine;
pub use pairs::Pairs;
pub use refusal::FieldRefusal;
pub use residues::Residues;

pub mod field;
pub mod nine;
pub mod pairs;
pub mod refusal;
pub mod residues;
