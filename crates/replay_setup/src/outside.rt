use fw_base::{Library, Sink};

/// A library with the sources that it opens, as contracts see them. Each library is one.
pub trait LibraryView: Library {
    ghost use Rattle.replay_setup.specs.Outside.{Files};

    ghost files: { Files Self Self.Reader };
}

impl<L: Library> LibraryView for L {
    ghost files = { record {
      pairs = L.pairs;
      faults = L.faults;
      refused = L.refused;
      left = L.Reader.left;
      failures = L.Reader.faults;
    } };
}

/// A sink, as contracts see it. Each sink is one.
pub trait SinkView: Sink {
    ghost use Rattle.replay_setup.specs.Outside.{Output};

    ghost output: { Output Self };
}

impl<K: Sink> SinkView for K {
    ghost output = { record {
      written = λ k. (K.state k).written;
      faults = λ k. (K.state k).faults;
    } };
}
