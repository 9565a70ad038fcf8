// The keys of the previous tick in numbers, and back; which numbers stand for a case.
#![tactic(auto, unfolding(crate::specs::Numbers::key_image, crate::specs::Numbers::keys_of))]

ghost use Rattle.std.specs.Prelude.{◌≡◌};
ghost use Rattle.coding_keys.specs.Numbers.{key_image, keys_of, are_keys};

use keys::{Buttons, Keys};

// Numbers, since the C interface has them.
// The keys of the previous tick, each 0 or 1: the panel's two buttons, the dispatcher's, and the mode, 1 being remote.
#[repr(C)]
#[derive(Clone, Copy)]
pub struct KeyImage {
    pub raise_button: u32,
    pub lower_button: u32,
    pub remote_raise: u32,
    pub remote_lower: u32,
    pub remote: u32,
}

impl From<Keys> for KeyImage {
    ghost from_gives = { λ k m. m ≡ key_image k };

    fn from(k: Keys) -> KeyImage {
        KeyImage {
            raise_button: k.panel.raise as u32,
            lower_button: k.panel.lower as u32,
            remote_raise: k.dispatcher.raise as u32,
            remote_lower: k.dispatcher.lower as u32,
            remote: k.remote as u32,
        }
    }
}

impl From<KeyImage> for Keys {
    ghost from_gives = { λ m k. k ≡ keys_of m };

    fn from(m: KeyImage) -> Keys {
        Keys {
            panel: Buttons {
                raise: m.raise_button == 1,
                lower: m.lower_button == 1,
            },
            dispatcher: Buttons {
                raise: m.remote_raise == 1,
                lower: m.remote_lower == 1,
            },
            remote: m.remote == 1,
        }
    }
}

// Whether the numbers are some keys'.
pub fn are_keys(m: KeyImage) -> bool
    ensures { result ≡ are_keys m }
{
    let panel = (m.raise_button <= 1) & (m.lower_button <= 1);
    let dispatcher = (m.remote_raise <= 1) & (m.remote_lower <= 1);
    panel & dispatcher & (m.remote <= 1)
}
