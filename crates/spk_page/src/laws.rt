//! Laws on definitions: functions that do nothing, whose contracts speak of definitions alone.
ghost use Rattle.std.specs.Prelude.{◌≡◌, ℕ, List, [], None};
ghost use Rattle.http1.specs.declared.encode.Encoder.{Encoder};
ghost use Rattle.http1.specs.declared.server.Server.{Server};
ghost use Rattle.http1.specs.Encoder.{AreAccepted};
ghost use Rattle.spk_page.specs.Streams.{BeginsWith, IsOneResponse, stream_refusal};

/// For every connection that answers a request, and every list of events.
pub fn any_stream()
    // where neither the stream's head nor an event is refused, the head, the events and the end that `http1` writes behind them are one
    // response, whose body is the events, one after another
    ensures { (s : Server) (e : Encoder) (events : List (List ℕ)) → stream_refusal s ≡ None
        → BeginsWith s e → AreAccepted events e [] → IsOneResponse s e events }
{}
