ghost use Rattle.std.specs.Prelude.{◌≡◌, IfOk, List};
ghost use Rattle.st_hash.specs.Hash.{uri_of, HashValue};
ghost use Rattle.st_exchange.specs.Peer.{is_among, FileDue, LineDue, Peer as Means, PeerLaws};

use st_base::{Bytes, List, WantOfMemory, Work};
use st_content::Content;
use st_hash::Hash;
use std::alloc::Global;
use std::collections::BTreeSet;

/// A node that answers lines, keeps files and wants others.
pub trait Peer: Sized + Drop {
    /// Its answers, files and wanted URIs.
    ghost peer: { Means Self };

    /// A node without entries and files.
    fn start(alloc: Global) -> Result<Self, WantOfMemory>
        ensures { IfOk result (λ node. node ≡ peer.start) };

    /// The files that it has.
    fn content(&self) -> &Content
        ensures { result.now ≡ peer.files self.now };

    /// The URIs of the files that it wants.
    fn wanted(&self, alloc: Global) -> Result<List<Hash>, WantOfMemory>
        ensures { IfOk result (λ uris. uris ≡ peer.wanted self.now) };

    /// Whether it wants the file of this URI.
    fn wants(&self, alloc: Global, uri: &Hash) -> Result<bool, WantOfMemory>
        ensures { IfOk result (λ found. found ≡ is_among (peer.wanted self.now) uri.now) };

    /// Answers a line. For an anchor that it accepts it may read five more files. For any result,
    /// it counts no more than was due and the line adds.
    fn answer(
        self,
        alloc: Global,
        line: &[u8],
        work: &mut Work,
    ) -> Result<(Self, Bytes), WantOfMemory>
        ensures next { IfOk result (λ done. done.0 ≡ peer.next self line.now) }
        ensures reply { IfOk result (λ done. done.1 ≡ peer.reply self line.now) }
        ensures due { LineDue peer self line.now work.old work.new };

    /// Keeps a file, and returns its URI. For any result, it counts no more than was due.
    fn keep(
        self,
        alloc: Global,
        bytes: Bytes,
        work: &mut Work,
    ) -> Result<(Self, Hash), WantOfMemory>
        ensures next { IfOk result (λ done. done.0 ≡ peer.stored self bytes) }
        ensures uri { IfOk result (λ done. done.1 ≡ uri_of bytes) }
        ensures due { FileDue peer self bytes work.old work.new };

    /// Its laws.
    ghost laws: { PeerLaws peer };
}

/// A test of whether a file is wanted.
pub trait Wants {
    /// The URIs of the files that are wanted.
    ghost wanted: { Self → List HashValue };

    /// Whether the file of this URI is wanted.
    fn wants(&self, alloc: Global, uri: &Hash) -> Result<bool, WantOfMemory>
        ensures { IfOk result (λ found. found ≡ is_among (wanted self.now) uri.now) };
}

/// The files of these URIs are wanted.
impl Wants for BTreeSet<Hash> {
    ghost wanted = { λ uris. uris.keys };

    #[tactic(auto, using(crate::proofs::AnswerLemmas::among_keys))]
    fn wants(&self, _alloc: Global, uri: &Hash) -> Result<bool, WantOfMemory> {
        Ok(self.contains(uri))
    }
}
