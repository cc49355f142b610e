//! The line of a read.
ghost use Rattle.std.specs.Prelude.{◌≡◌, IfOk, option_map};
ghost use Rattle.world_core.specs.Lines.{bytes_of, digest_with, length_with, line_of};
ghost use Rattle.world_core.specs.Text.{is_cached};

use client_session::{Body, ReadOut, Way};
use hex::encode;
use q_base::{Commit, Memory, Text};
use query_normal::Key;
use sha2::{Digest, Sha256};
use std::alloc::Global;

/// What a read gave, of a step of a run.
#[derive(Drop)]
pub struct ReadLine {
    /// The number of the step, from 1.
    pub step: u32,
    pub client: usize,
    /// The commit whose result was read.
    pub commit: Commit,
    pub way: Way,
    /// The length of the body, in bytes; 0 where there is no document.
    pub length: usize,
    /// The SHA-256 of the body in lower-case hexadecimal (FIPS 180-4), and `-` where there is no document.
    pub digest: Text,
    pub key: Key,
}

impl ReadLine {
    /// The line of what was read.
    pub fn of(
        alloc: Global,
        step: u32,
        client: usize,
        key: &Key,
        out: &ReadOut,
    ) -> Result<ReadLine, Memory>
        ensures { IfOk result (λ line. line ≡ line_of step client key.now out.now) }
    {
        let body = bytes_of(&out.body);
        Ok(ReadLine {
            step,
            client,
            commit: out.commit,
            way: out.way,
            length: length_of(body),
            digest: digest_of(alloc, body)?,
            key: key.clone()?,
        })
    }

    /// Whether a copy was accepted.
    pub fn is_cached(&self) -> bool
        ensures { result ≡ is_cached self.now }
    {
        match self.way {
            Way::Cached => true,
            Way::Direct(_) => false,
        }
    }
}

/// The bytes of a body, where there is one.
fn bytes_of(body: &Body) -> Option<&[u8]>
    ensures { option_map (λ bytes. bytes.now) result ≡ bytes_of body.now }
{
    match body {
        Body::Document { text, .. } => Some(text.as_slice()),
        Body::List { text } => Some(text.as_slice()),
        Body::Absent => None,
    }
}

/// The length of a body.
fn length_of(body: Option<&[u8]>) -> usize
    ensures { result ≡ length_with (option_map (λ bytes. bytes.now) body.entry) }
{
    match body {
        Some(bytes) => bytes.len(),
        None => 0,
    }
}

/// The digest of a body.
fn digest_of(alloc: Global, body: Option<&[u8]>) -> Result<Text, Memory>
    ensures { IfOk result (λ text. text ≡ digest_with (option_map (λ bytes. bytes.now) body.entry)) }
{
    match body {
        Some(bytes) => {
            let digest = Sha256::digest(bytes);
            Ok(Text::of(encode(alloc, digest)?.into_bytes()))
        }
        None => Ok(Text::of(Vec::from_slice(alloc, b"-")?)),
    }
}
