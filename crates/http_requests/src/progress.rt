use crate::next::{Next, request_of};
use crate::requests::Request;
use http_heads::{Front, Head, HeadScan};
use http_paths::Paths;
use std::alloc::Global;
use trust_types::NoMemory;

/// What is known of a request while more of its bytes come, so that no byte of its head is looked at for each of them. It serves one request after
/// another, and keeps what finds their paths.
#[derive(Drop)]
pub struct Progress {
    /// How far the end of the head was looked for.
    pub scan: HeadScan,
    /// Until so many bytes are there more are needed.
    pub least: usize,
    /// What finds paths, once a path was looked up.
    paths: Option<Paths>,
}

impl Progress {
    ghost use Rattle.std.specs.Prelude.{ℕ, List, ◌≡◌, ◌≢◌, ◌<◌, ◌≤◌, ◌++◌, length, take, IfOk};
    ghost use Rattle.http_heads.specs.Lines.{filled_lines};
    ghost use Rattle.http_heads.specs.HeadEnd.{front_of};
    ghost use Rattle.http_requests.specs.Requests.{IsAnswer, request_of};
    ghost use Rattle.http_requests.specs.Progress.{IsProgress, IsKnown};

    /// Nothing is known. It serves the bytes of any request.
    pub fn new() -> Progress
        ensures { (bytes : List ℕ) → IsProgress result bytes }
    {
        Progress {
            scan: HeadScan::new(),
            least: 0,
            paths: None,
        }
    }

    /// Begins with the next request, of which nothing is known.
    pub fn restart(&mut self)
        ensures { (bytes : List ℕ) → IsProgress self.new bytes }
    {
        self.scan = HeadScan::new();
        self.least = 0;
    }

    /// What the front of the bytes asks for, which begin with those of the calls before. Over all calls each byte of the head is looked at once
    /// for the head's end, and a head that has ended is parsed twice at most: then, and when its body is there. Other calls are a comparison.
    ///
    /// The answers are those of [`next_request`](crate::next_request). Where it answers [`Next::NeedMore`] it has looked at all bytes, or knows
    /// how many it needs. After [`Next::Whole`] the next request wants a [`restart`](Progress::restart).
    pub fn next(&mut self, alloc: Global, bytes: &[u8]) -> Next
        requires { IsProgress self.old bytes.now }
        ensures progress { IsProgress self.new bytes.now }
        ensures answer { IsAnswer bytes.now result }
        ensures stable { (more : List ℕ) → result ≢ Next.NeedMore → IsAnswer (bytes.now ++ more) result }
        ensures few { result ≡ Next.NeedMore → length bytes.now < 81920 }
        ensures further { self.old.scan.seen ≤ self.new.scan.seen }
        ensures known { result ≡ Next.NeedMore → IsKnown self.new bytes.now }
    {
        self.look(alloc, bytes)
    }

    fn look(&mut self, alloc: Global, bytes: &[u8]) -> Next
        requires { IsProgress self.old bytes.now }
        ensures progress { IsProgress self.new bytes.now }
        ensures answer { IsAnswer bytes.now result }
        ensures further { self.old.scan.seen ≤ self.new.scan.seen }
        ensures known { result ≡ Next.NeedMore → IsKnown self.new bytes.now }
    {
        if bytes.len() < self.least {
            return Next::NeedMore;
        }
        match self.scan.front(bytes) {
            Front::TooLong => Next::Bad(431),
            Front::Unfinished => Next::NeedMore,
            Front::Ended(end) => self.ended(alloc, bytes, end),
        }
    }

    /// The same where the head has ended.
    fn ended(&mut self, alloc: Global, bytes: &[u8], end: usize) -> Next
        requires known { IsProgress self.old bytes.now }
        requires front { front_of bytes.now ≡ Front.Ended end }
        requires within { end ≤ length bytes.now }
        requires lines { filled_lines (take end bytes.now) ≤ 65 }
        ensures progress { IsProgress self.new bytes.now }
        ensures answer { IsAnswer bytes.now result }
        ensures scan { self.new.scan ≡ self.old.scan }
        ensures least { result ≡ Next.NeedMore → length bytes.now < self.new.least }
    {
        let (front, rest) = bytes.split_at(end);
        let Some(head) = Head::read(front) else {
            return Next::Bad(400);
        };
        let length = match head.body_length() {
            Ok(length) => length,
            Err(status) => return Next::Bad(status),
        };
        if rest.len() < length {
            self.least = end + length;
            return Next::NeedMore;
        }
        match self.request_of(alloc, &head, &rest[..length]) {
            Ok(request) => Next::Whole(request, end + length),
            Err(_) => Next::NoMemory,
        }
    }

    /// The request that a head and its body are. The first one makes what finds paths.
    fn request_of(
        &mut self,
        alloc: Global,
        head: &Head<'_>,
        body: &[u8],
    ) -> Result<Request, NoMemory>
        ensures request { IfOk result (λ request. request ≡ request_of head.now body.now) }
        ensures scan { self.new.scan ≡ self.old.scan }
        ensures least { self.new.least ≡ self.old.least }
    {
        if self.paths.is_none() {
            self.paths = Some(Paths::new(alloc)?);
        }
        match &self.paths {
            Some(paths) => request_of(alloc, paths, head, body),
            None => Err(NoMemory),
        }
    }
}
