ghost use Rattle.std.specs.Prelude.{◌≡◌, bytes_eq};
ghost use Rattle.lef_read.specs.Stages.{next_stage};

/// How far a text is read: before the first macro of the wanted name, in it, or after it.
#[derive(Clone, Copy, Debug, PartialEq, Eq)]
pub enum Stage {
    Before,
    Inside,
    Behind,
}

/// How far a text is read after the head of a macro of a name.
pub fn next_stage(stage: Stage, name: &[u8], wanted: &[u8]) -> Stage
    ensures { result ≡ next_stage stage (bytes_eq name.now wanted.now) }
{
    match (stage, name == wanted) {
        (Stage::Before, true) => Stage::Inside,
        (Stage::Before, false) => Stage::Before,
        _ => Stage::Behind,
    }
}
