//! Replies.
ghost use Rattle.script_runner.specs.Runner.{Sent};

use dd_io::Sink;
use reply_text::Ending;

/// Writes a reply.
pub(crate) fn send<K: Sink>(sink: &mut K, reply: &[u8]) -> Result<(), Ending>
    ensures { Sent reply.now result (K.view sink.old) (K.view sink.new) }
{
    match sink.write_all(reply) {
        Ok(()) => Ok(()),
        Err(_) => Err(Ending::Sink),
    }
}
