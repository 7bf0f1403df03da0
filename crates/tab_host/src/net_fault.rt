//! Why a port, or a socket file, can't be used.

/// Why a port of this machine can't be used, or a socket file, whose name stands in front of it; the system's reason goes behind it.
#[derive(Clone, Copy, Debug, PartialEq, Eq, thiserror::Error)]
pub enum NetFault {
    /// The port can't be listened on.
    #[error("port {0} can't be listened on")]
    Listen(u16),
    /// No server is reached on the port.
    #[error("no server is reached on port {0}")]
    Connect(u16),
    /// What listens on the port gives no answer.
    #[error("port {0} doesn't answer as tabd")]
    Silent(u16),
    /// No server is reached at the file.
    #[error("no server is reached")]
    NoServer,
    /// What listens at the file gives no answer.
    #[error("it doesn't answer as tabd")]
    NoAnswer,
}
