ghost use Rattle.std.specs.Prelude.{◌≡◌};
ghost use Rattle.gds_record.specs.Layers.{layer_number, layer_numbered};

use box_geom::Layer;

/// The number of a layer in MOSIS SCMOS.
pub fn number(layer: Layer) -> u16
    ensures { result ≡ layer_number layer }
{
    match layer {
        Layer::Well => 42,
        Layer::Active => 43,
        Layer::PSelect => 44,
        Layer::NSelect => 45,
        Layer::Poly => 46,
        Layer::Contact => 25,
        Layer::Metal1 => 49,
        Layer::Via => 50,
        Layer::Metal2 => 51,
    }
}

/// The layer that has a number there, if the drawing has it.
pub fn numbered(number: u16) -> Option<Layer>
    ensures { result ≡ layer_numbered number }
{
    match number {
        42 => Some(Layer::Well),
        43 => Some(Layer::Active),
        44 => Some(Layer::PSelect),
        45 => Some(Layer::NSelect),
        46 => Some(Layer::Poly),
        25 => Some(Layer::Contact),
        49 => Some(Layer::Metal1),
        50 => Some(Layer::Via),
        51 => Some(Layer::Metal2),
        _ => None,
    }
}
