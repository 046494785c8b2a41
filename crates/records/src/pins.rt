// The pins of a PN body: a place in two bytes, and a code.
ghost use Rattle.std.specs.Prelude.{◌≡◌, slice_index};
ghost use Rattle.records.specs.Letters.{number_of_bytes};
ghost use Rattle.records.specs.Records.{pin_at, pins_of, pins_right};

// The first two bytes of a pin.
fn place_of(pin: &[u8; 3]) -> u16
    ensures { result ≡ number_of_bytes (slice_index pin.now 0) (slice_index pin.now 1) }
{
    u16::from_le_bytes([pin[0], pin[1]])
}

// Places rise, and are below the width. Bytes that are left over say nothing.
pub fn pins_are_right(width: u16, pins: &[u8]) -> bool
    ensures { result ≡ pins_right width pins.now }
{
    let (whole, _) = pins.as_chunks::<3>();
    let [first, ..] = whole else {
        return true;
    };
    // Each is held to the width as it is met: of places that rise past the width the first is the last one looked at.
    place_of(first) < width
        && whole.is_sorted_by(|before, pin| {
            place_of(before) < place_of(pin) && place_of(pin) < width
        })
}

// The code that a place is pinned to.
// By a search from the front: the promise holds for pins in any order, and they are borrowed, so no map is made of them.
pub fn pin_at(pins: &[u8], place: usize) -> Option<u8>
    ensures { result ≡ pin_at place (pins_of pins.now) }
{
    let (whole, _) = pins.as_chunks::<3>();
    whole
        .iter()
        .find(|pin| usize::from(place_of(pin)) == place)
        .map(|&[_, _, code]| code)
}
