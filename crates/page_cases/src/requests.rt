//! The request of a step.

use anyhow::{Result, bail};
use http_requests::{Next, Request, next_request};
use std::alloc::Global;

/// The request of that first line, with this cookie and this form.
pub fn request_of(alloc: Global, line: &str, cookie: &str, form: &str) -> Result<Request> {
    let length = form.len();
    let bytes = format!(in alloc;
        "{line}\r\nHost: x\r\nCookie: {cookie}\r\nContent-Length: {length}\r\n\r\n{form}"
    )?;
    match next_request(alloc, bytes.as_bytes()) {
        Next::Whole(request, _) => Ok(request),
        _ => bail!("no request"),
    }
}
