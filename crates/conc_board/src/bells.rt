use crossbeam_utils::sync::EventCount;

/// Who may sleep at a board. A bell is rung after the step that a sleeper waits for; the rule knows
/// nothing of it. To sleep: `prepare_wait`, look once more, then wait.
#[derive(Drop)]
pub(crate) struct Bells {
    // Hands, until a request is let out, a claim is answered, a place opens or all is finished.
    pub(crate) hands: EventCount,
    // The lead, until a request is claimed or something is left for one.
    pub(crate) lead: EventCount,
}

impl Bells {
    pub(crate) fn new() -> Self {
        Bells {
            hands: EventCount::new(),
            lead: EventCount::new(),
        }
    }
}
