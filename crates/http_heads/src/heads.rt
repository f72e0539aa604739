ghost use Rattle.std.specs.Prelude.{◌≡◌, ◌≤◌, ◌<◌, [], length, codes, IfSome, IfNone, IfOk};
ghost use Rattle.httparse.specs.Grammar.{RequestHead, ReadsRequest};
ghost use Rattle.httparse.specs.Spans.{IsRequestAt};
ghost use Rattle.http_heads.specs.Lines.{filled_lines};
ghost use Rattle.http_heads.specs.Heads.{Head, IsHeadOf, IsPlaced};
ghost use Rattle.http_heads.specs.Fields.{values_of};
ghost use Rattle.http_heads.specs.Bodies.{count_of, has_wrong_hosts, stated_length, is_encoded, body_length};
ghost use Rattle.http_heads.specs.Closing.{closes};
ghost use Rattle.http_heads.specs.Cookies.{session};

use crate::bodies::{length_in, refused_if};
use crate::closing::has_close;
use crate::cookies::{id_word, session_in};
use crate::fields::{count_named, first_named, has_encoding};
use httparse::Status;
use httparse::spans::{EMPTY_HEADER_SPAN, HeaderSpan, RequestSpans, parse_request};
use sessions::Token;
use std::alloc::Global;
use std::marker::Model;
use std::str;
use trust_types::{NoMemory, Text};

/// The most fields of a head.
const MOST_FIELDS: usize = 64;

/// The longest body of a request, in bytes.
pub const LONGEST_BODY: u64 = 65_536;

/// A head of a request, read where it lies. It takes no memory. Contracts see what it says.
#[derive(Drop)]
pub struct Head<'a> {
    bytes: &'a [u8],
    spans: RequestSpans,
    headers: [HeaderSpan; MOST_FIELDS],
}

impl<'a> Model for Head<'a> {
    ghost use Rattle.http_heads.specs.Heads.{Head, said_at, IsPlaced};

    ghost Value = { Head };

    ghost view = { λ h. said_at h.bytes.now h.headers h.spans };

    ghost invariant = { λ h. IsPlaced h.bytes.now h.headers h.spans };
}

impl<'a> Head<'a> {
    /// The head that the bytes are, all of them; `None` where they are none.
    pub fn read(bytes: &'a [u8]) -> Option<Head<'a>>
        requires { filled_lines bytes.now ≤ 65 }
        ensures { IsHeadOf bytes.now result }
    {
        let mut headers = [EMPTY_HEADER_SPAN; MOST_FIELDS];
        let spans = whole_head(bytes, &mut headers)?;
        Some(Head {
            bytes,
            spans,
            headers,
        })
    }

    /// The method as it was sent.
    pub fn method(&self) -> &[u8]
        ensures { result.now ≡ self.now.method }
    {
        self.spans.method.of(self.bytes)
    }

    /// The target as it was sent.
    pub fn target(&self) -> &str
        ensures { result.now ≡ self.now.target }
    {
        match str::from_utf8(self.spans.path.of(self.bytes)) {
            Ok(target) => target,
            Err(_) => unreachable!(),
        }
    }

    /// The last digit of the version, 0 or 1.
    pub fn minor(&self) -> u8
        ensures { result ≡ self.now.minor }
    {
        self.spans.version
    }

    /// The length of the body that the head announces, at most [`LONGEST_BODY`]. It goes over the fields a few times.
    ///
    /// # Errors
    /// The status of the refusal, the first that applies: 400 where there are several Host fields, or none in version 1.1; 501 where there is
    /// a Transfer-Encoding field; 400 where there are several Content-Length fields, or the one isn't 1 to 10 digits; 413 where it is above
    /// [`LONGEST_BODY`]; 400 where it is above 0 and the body is encoded.
    pub fn body_length(&self) -> Result<usize, u16>
        ensures { result ≡ body_length self.now }
    {
        refused_if(self.has_wrong_hosts(), 400)?;
        refused_if(self.count(b"transfer-encoding") > 0, 501)?;
        let length = self.stated_length().ok_or(400_u16)?;
        refused_if(length > LONGEST_BODY, 413)?;
        refused_if(length > 0 && self.is_encoded(), 400)?;
        Ok(length as usize)
    }

    /// Whether the request asks that its link be closed.
    pub fn closes(&self) -> bool
        ensures { result ≡ closes self.now }
    {
        self.minor() == 0
            || has_close(
                self.bytes,
                &self.headers[..self.spans.headers],
                b"connection",
            )
    }

    /// The session that its cookies name.
    pub fn session(&self, alloc: Global) -> Result<Option<(Text, Token)>, NoMemory>
        ensures { IfOk result (λ found. found ≡ session self.now.fields) }
    {
        match id_word(self.bytes, &self.headers[..self.spans.headers], b"cookie") {
            Some(word) => session_in(alloc, word),
            None => Ok(None),
        }
    }

    fn has_wrong_hosts(&self) -> bool
        ensures { result ≡ has_wrong_hosts self.now }
    {
        let hosts = self.count(b"host");
        hosts > 1 || (self.minor() == 1 && hosts == 0)
    }

    fn stated_length(&self) -> Option<u64>
        ensures { result ≡ stated_length (values_of (codes "content-length") self.now.fields) }
    {
        let stated = self.count(b"content-length");
        if stated > 1 {
            return None;
        }
        match first_named(
            self.bytes,
            &self.headers[..self.spans.headers],
            b"content-length",
        ) {
            Some(value) => length_in(value),
            None => Some(0),
        }
    }

    fn is_encoded(&self) -> bool
        ensures { result ≡ is_encoded self.now }
    {
        has_encoding(
            self.bytes,
            &self.headers[..self.spans.headers],
            b"content-encoding",
        )
    }

    fn count(&self, name: &[u8]) -> usize
        ensures { result ≡ count_of self.now name.now }
    {
        count_named(self.bytes, &self.headers[..self.spans.headers], name)
    }
}

/// Where the parts of the head stand, where the bytes are one with at most 64 fields.
fn whole_head(bytes: &[u8], headers: &mut [HeaderSpan; MOST_FIELDS]) -> Option<RequestSpans>
    ensures placed { IfSome result (IsPlaced bytes.now headers.new) }
    ensures head { IfSome result (λ spans. (h : RequestHead) × ReadsRequest bytes.now h [] × IsRequestAt bytes.now headers.new spans h) }
    ensures none { IfNone result ((h : RequestHead) → ReadsRequest bytes.now h [] → 64 < length h.fields) }
{
    match parse_request(bytes, headers) {
        Ok(Status::Complete(spans)) => {
            if spans.len == bytes.len() {
                Some(spans)
            } else {
                None
            }
        }
        _ => None,
    }
}
