// What a call reads, and the work on it; the work of a bench, which reads nothing, is in a crate of its own.
#![tactic(auto)]

mod commands;
mod evidence;
mod material;
mod refusal;

pub use commands::{Material, ReadMaterial, gather, work};
pub use material::{
    CheckMaterial, EvidenceFile, FromMaterial, LowCheckMaterial, LowMaterial, MakeMaterial,
    PlanMaterial, RowMaterial,
};
pub use refusal::refused;
