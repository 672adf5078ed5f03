//! What connections pass on their way.

/// What each connection passes before its request is brought to the desk, and once it is answered.
/// Contracts say nothing of it; a test may hold a connection with one.
pub trait Gate {
    fn before(&self, connection: u64);

    fn answered(&self, connection: u64);
}

/// A gate that holds nothing.
#[derive(Clone, Copy, Debug)]
pub struct OpenGate;

impl Gate for OpenGate {
    fn before(&self, connection: u64) {
        let _ = connection;
    }

    fn answered(&self, connection: u64) {
        let _ = connection;
    }
}
