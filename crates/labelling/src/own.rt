// Labelling's own rows, which a call has while it runs.
use units::{GateNumber, PerGate};

// The rows in which a cluster grows, of numbers as the model's are: the onward delays to its root, the pulls, and the gates by pull.
#[derive(Drop)]
pub(crate) struct Work {
    pub(crate) onward: PerGate<u64>,
    pub(crate) pulls: PerGate<u64>,
    pub(crate) ordered: PerGate<usize>,
}

impl Work {
    pub(crate) fn new() -> Work {
        Work {
            onward: [0; GateNumber::MOST_GATES],
            pulls: [0; GateNumber::MOST_GATES],
            ordered: [0; GateNumber::MOST_GATES],
        }
    }
}
