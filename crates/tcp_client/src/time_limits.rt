//! How long a connection waits.
use std::time::Duration;

/// How long a connection waits before it is given up. The system refuses limits of no time at all, and then nothing connects; but a read of
/// `StoppableConnect` waits for a second at least. `TcpConnect` does not heed the last two.
#[derive(Clone, Copy)]
pub struct TimeLimits {
    /// How long each address of the server has to take the connection.
    pub connect: Duration,
    /// How long a read waits for a byte. A watch of which nothing comes for so long is cut.
    pub read: Duration,
    /// How long a write waits until a byte is taken; one of many bytes so long for each part of them that is taken.
    pub write: Duration,
    /// How long a reply may take as a whole, from when there is a connection for it. One that takes longer is lost, also where bytes still come.
    pub reply: Duration,
    /// How long a watch may take as a whole, with the reply that opens it. One that lasts longer is cut; who follows asks for another from where
    /// it was.
    pub watch: Duration,
}

impl TimeLimits {
    ghost use Rattle.std.specs.Prelude.{◌≡◌};
    ghost use Rattle.std.specs.Duration.{as_nanos};

    /// Returns the limits for who has no other wish: ten seconds to connect, a minute to read and to write, five minutes for a reply, and half an
    /// hour for a watch, which a Kubernetes API server ends by itself after half an hour or later (kube-apiserver, `--min-request-timeout`).
    pub fn usual() -> TimeLimits
        ensures connect { as_nanos result.connect ≡ 10_000_000_000 }
        ensures read { as_nanos result.read ≡ 60_000_000_000 }
        ensures write { as_nanos result.write ≡ 60_000_000_000 }
        ensures reply { as_nanos result.reply ≡ 300_000_000_000 }
        ensures watch { as_nanos result.watch ≡ 1_800_000_000_000 }
    {
        TimeLimits {
            connect: Duration::from_secs(10),
            read: Duration::from_secs(60),
            write: Duration::from_secs(60),
            reply: Duration::from_secs(300),
            watch: Duration::from_secs(1800),
        }
    }
}
