/// The layers of a drawing.
#[derive(Clone, Copy, Debug, PartialEq, Eq)]
pub enum Layer {
    Well,
    Active,
    PSelect,
    NSelect,
    Poly,
    Contact,
    Metal1,
    Via,
    Metal2,
}
