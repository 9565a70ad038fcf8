// The keys of a tick: the buttons of the panel and those of the dispatcher, and the mode that chooses between them.
#![tactic(auto)]

// Which buttons of a pair are pressed.
#[derive(Clone, Copy, PartialEq, Eq)]
pub struct Buttons {
    pub raise: bool,
    pub lower: bool,
}

// The buttons on the panel, the dispatcher's, and whether remote mode is chosen.
#[derive(Clone, Copy, PartialEq, Eq)]
pub struct Keys {
    pub panel: Buttons,
    pub dispatcher: Buttons,
    pub remote: bool,
}
