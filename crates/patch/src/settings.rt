// The settings with which a patch is drawn.
ghost use Rattle.std.specs.Prelude.{◌≡◌};
ghost use Rattle.patch.specs.Turn.{positive};

use level::Spacing;

#[derive(Clone, Copy, Drop)]
pub enum VertexOrder {
    Clockwise,
    CounterClockwise,
}

#[derive(Clone, Copy, Drop)]
pub enum DomainOrigin {
    UpperLeft,
    LowerLeft,
}

#[derive(Clone, Copy, Drop)]
pub struct Settings {
    pub spacing: Spacing,
    // The top level, an even number from 2 to 64 (`level::is_top`); levels of odd spacing go up to one less.
    pub top: u32,
    pub order: VertexOrder,
    pub origin: DomainOrigin,
    pub point_mode: bool,
}

// Whether the orientation asked for is that of the strips: counter-clockwise with a lower-left origin, clockwise with an upper-left one.
pub fn turns_positive(order: VertexOrder, origin: DomainOrigin) -> bool
    ensures { result ≡ positive order origin }
{
    match (order, origin) {
        (VertexOrder::Clockwise, DomainOrigin::UpperLeft) => true,
        (VertexOrder::Clockwise, DomainOrigin::LowerLeft) => false,
        (VertexOrder::CounterClockwise, DomainOrigin::UpperLeft) => false,
        (VertexOrder::CounterClockwise, DomainOrigin::LowerLeft) => true,
    }
}
