ghost use Rattle.std.specs.Prelude.{◌≡◌, ◌≢◌, [], ◌↔◌, IsSome, IfSome, IfOk, OnOk, OnErr, Some};
ghost use Rattle.std.specs.Option.{option_copied, option_or};
ghost use Rattle.std.specs.BTreeMap.{ContainsKey};
ghost use Rattle.std.specs.Cmp.Lexicographic.{slice_cmp};
ghost use Rattle.std.specs.Ordering.{nat_cmp};
ghost use Rattle.st_hash.specs.Hash.{HashValue, uri_of};
ghost use Rattle.st_content.specs.Files.{AreNamed, file_at, with_file};
ghost use Rattle.st_content.specs.inside.Files.{with_entry};

use st_base::{Bytes, Shared, WantOfMemory};
use st_hash::{Hash, uri_of};
use std::alloc::Global;
use std::collections::BTreeMap;
use std::collections::btree_map::Entry;
use std::marker::Model;

/// Whether a file was new.
#[derive(Clone, Copy, Debug, PartialEq, Eq)]
pub enum Put {
    /// The file was added.
    New,
    /// A file of this URI was there already, and stays.
    Had,
}

/// Files by their URI. Contracts see the pairs of a URI and its file, in the order of the URIs.
#[derive(Drop)]
pub struct Content {
    // By the digests of the URIs, which are all of SHA-256.
    files: BTreeMap<[u8; 32], Shared<Bytes>>,
}

impl Model for Content {
    ghost use Rattle.st_content.specs.Files.{AreNamed, Files, files_of};

    ghost Value = { Files };

    ghost view = { λ c. files_of c.files.entries };

    ghost invariant = { λ c. AreNamed (files_of c.files.entries) };
}

impl Content {
    /// No files. It allocates nothing.
    pub fn new(alloc: Global) -> Content
        ensures { result ≡ [] }
    {
        Content {
            files: BTreeMap::new(alloc),
        }
    }

    /// Adds the file, unless one of its URI is there, and returns its URI. The result has `Had` if
    /// and only if one was there; then nothing changes.
    pub fn put(&mut self, alloc: Global, bytes: Bytes) -> Result<(Hash, Put), WantOfMemory>
        ensures uri { IfOk result (λ done. done.0 ≡ uri_of bytes) }
        ensures had { IfOk result (λ done. (done.1 ≡ Put.Had) ↔ IsSome (file_at (uri_of bytes) self.old)) }
        ensures ok { OnOk result (self.new ≡ with_file bytes self.old) }
        // The first file of a URI stays, and so does the file of every other URI.
        ensures first { OnOk result
            (file_at (uri_of bytes) self.new ≡ option_or (file_at (uri_of bytes) self.old) (Some bytes)) }
        ensures others { OnOk result
            ((uri : HashValue) → uri ≢ uri_of bytes → file_at uri self.new ≡ file_at uri self.old) }
        ensures err { OnErr result (self.new ≡ self.old) }
    {
        let uri = uri_of(bytes.as_slice());
        let put = self.put_under(alloc, uri, bytes)?;
        Ok((uri, put))
    }

    /// The same for a file whose URI is known, so it isn't hashed again.
    pub fn put_under(&mut self, alloc: Global, uri: Hash, bytes: Bytes) -> Result<Put, WantOfMemory>
        requires { uri ≡ uri_of bytes }
        ensures had { IfOk result (λ put. (put ≡ Put.Had) ↔ IsSome (file_at uri self.old)) }
        ensures ok { OnOk result (self.new ≡ with_file bytes self.old) }
        ensures err { OnErr result (self.new ≡ self.old) }
    {
        let Some(digest) = uri.sha256_digest() else {
            unreachable!()
        };
        let file = Shared::new(alloc, bytes)?;
        let put = put_first(&mut self.files, digest, file)?;
        Ok(put)
    }

    /// The file of this URI, shared with those that keep parts of it; `None` if and only if there
    /// is none. A hash of another algorithm than SHA-256 is not a URI.
    pub fn get(&self, uri: &Hash) -> Option<&Shared<Bytes>>
        ensures value { option_copied result ≡ file_at uri.now self.now }
        // The file has the requested URI.
        ensures uri { IfSome result (λ file. uri_of file.now ≡ uri.now) }
        ensures named { AreNamed self.now }
    {
        match uri.sha256_digest() {
            Some(digest) => self.files.get(&digest),
            None => None,
        }
    }
}

// Adds the file by its digest, unless one is there. The map is searched once.
fn put_first(
    files: &mut BTreeMap<[u8; 32], Shared<Bytes>>,
    digest: [u8; 32],
    file: Shared<Bytes>,
) -> Result<Put, WantOfMemory>
    ensures had { IfOk result (λ put. (put ≡ Put.Had) ↔ ContainsKey (slice_cmp nat_cmp) files.old digest) }
    ensures ok { OnOk result (files.new.entries ≡ with_entry digest file files.old.entries) }
    ensures err { OnErr result (files.new.entries ≡ files.old.entries) }
{
    match files.entry(digest)? {
        Entry::Occupied(_) => Ok(Put::Had),
        Entry::Vacant(entry) => {
            let _file = entry.insert(file);
            Ok(Put::New)
        }
    }
}
