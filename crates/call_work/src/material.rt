// What commands on cells of a SPICE file work on.
use call_end::Stem;
use call_read::FileBytes;
use call_words::Evidence;
use cell_commands::CheckedLog;
use cell_inputs::{Inputs, Style};
use cell_make::RowInputs;

/// What a plan works on: the inputs of a cell, and the evidence that its row is found with.
#[derive(Drop)]
pub struct PlanMaterial {
    pub inputs: Inputs,
    pub evidence: Evidence,
}

/// What a drawing works on: the inputs of a cell, what the names of its files begin with, the style, and the evidence
/// that its row is found with.
#[derive(Drop)]
pub struct MakeMaterial {
    pub inputs: Inputs,
    pub stem: Stem,
    pub style: Style,
    pub evidence: Evidence,
}

/// A file of evidence that was read: a log after all its bytes, or the bytes of a certificate by trails.
#[derive(Drop)]
pub enum EvidenceFile {
    Log(CheckedLog),
    Trails(FileBytes),
}

/// What a check works on: the inputs of a cell, and the evidence that was read for them.
#[derive(Drop)]
pub struct CheckMaterial {
    pub inputs: Inputs,
    pub file: EvidenceFile,
}

/// What the drawing of a file's row works on: the inputs of a cell, the evidence that was read for them, what the names
/// of the drawing's files begin with, and the style.
#[derive(Drop)]
pub struct FromMaterial {
    pub inputs: Inputs,
    pub file: EvidenceFile,
    pub stem: Stem,
    pub style: Style,
}

/// What the drawing of the lowest row works on: the inputs of a cell, what the names of its files begin with, the
/// style, and the evidence that its gaps are found with.
#[derive(Drop)]
pub struct LowMaterial {
    pub inputs: Inputs,
    pub stem: Stem,
    pub style: Style,
    pub evidence: Evidence,
}

/// What a check of tracks works on: the inputs of a cell, and the bytes of the certificate's file.
#[derive(Drop)]
pub struct LowCheckMaterial {
    pub inputs: Inputs,
    pub bytes: FileBytes,
}

/// What a row works on: what its cells are made of, and what the name of its file begins with.
#[derive(Drop)]
pub struct RowMaterial {
    pub inputs: RowInputs,
    pub stem: Stem,
}
