//! The answers of a gateway's server.
ghost use Rattle.std.specs.Prelude.{◌≡◌, IfOk, [], if◌then◌else◌};
ghost use Rattle.http.specs.Request.{head_of};
ghost use Rattle.http_uri.specs.Uri.{uri_path};
ghost use Rattle.gw_page.specs.Rows.{Shows};
ghost use Rattle.gw_page.specs.Samples.{samples};
ghost use Rattle.gw_page.specs.Answers.{Answers, Gives, IsPage, status_of};
ghost use Rattle.gw_page.specs.Health.{is_well, health};

use crate::Figures;
use crate::exposition::metrics;
use crate::html::page;
use crate::place::{Place, is_read, place_of};
use crate::wellness::{health, is_well};
use bytes::{BufMut, Bytes};
use http::header::{HeaderName, HeaderValue};
use http::{Request, StatusCode};
use http_server::{Response, Service};
use std::alloc::{AllocError, Global};

/// What answers a request: a status, a text and its media type.
#[derive(Drop)]
struct Content {
    status: StatusCode,
    kind: HeaderValue,
    text: Vec<u8>,
}

fn plain() -> HeaderValue {
    HeaderValue::from_static("text/plain; charset=utf-8")
}

fn empty(alloc: Global, status: StatusCode) -> Content
    ensures status { result.status ≡ status }
    ensures text { result.text.items ≡ [] }
{
    Content {
        status,
        kind: plain(),
        text: Vec::new(alloc),
    }
}

fn of_page(alloc: Global, figures: &Figures) -> Result<Content, AllocError>
    ensures status { IfOk result (λ c. c.status ≡ 200) }
    ensures text { IfOk result (λ c. IsPage figures.now c.text.items) }
{
    Ok(Content {
        status: StatusCode::OK,
        kind: HeaderValue::from_static("text/html; charset=utf-8"),
        text: page(alloc, figures)?,
    })
}

fn of_metrics(alloc: Global, figures: &Figures) -> Result<Content, AllocError>
    ensures status { IfOk result (λ c. c.status ≡ 200) }
    ensures text { IfOk result (λ c. Shows (samples figures.now.receivers.items) c.text.items) }
{
    Ok(Content {
        status: StatusCode::OK,
        kind: HeaderValue::from_static("text/plain; version=0.0.4; charset=utf-8"),
        text: metrics(alloc, figures)?,
    })
}

fn of_health(alloc: Global, figures: &Figures) -> Result<Content, AllocError>
    ensures status { IfOk result (λ c. c.status ≡ (if is_well figures.now then 200 else 503)) }
    ensures text { IfOk result (λ c. c.text.items ≡ health figures.now) }
{
    let status = if is_well(figures) {
        StatusCode::OK
    } else {
        StatusCode::SERVICE_UNAVAILABLE
    };
    Ok(Content {
        status,
        kind: plain(),
        text: health(alloc, figures)?,
    })
}

fn found(alloc: Global, figures: &Figures, reads: bool, place: Place) -> Result<Content, AllocError>
    ensures status { IfOk result (λ c. c.status ≡ status_of figures.now reads place) }
    ensures text { IfOk result (λ c. Gives figures.now reads place c.text.items) }
{
    match place {
        Place::Elsewhere => return Ok(empty(alloc, StatusCode::NOT_FOUND)),
        _ if !reads => return Ok(empty(alloc, StatusCode::METHOD_NOT_ALLOWED)),
        Place::Page => return of_page(alloc, figures),
        Place::Metrics => return of_metrics(alloc, figures),
        Place::Health => return of_health(alloc, figures),
    }
}

/// Answers by the figures of one moment: `/`, `/metrics` and `/health`, to GET and HEAD.
#[derive(Drop)]
pub struct Site<'a> {
    pub alloc: Global,
    pub figures: &'a Figures,
}

fn add(response: &mut Response, name: HeaderName, value: HeaderValue) -> Result<(), AllocError>
    ensures status { response.new.status ≡ response.old.status }
    ensures body { response.new.body ≡ response.old.body }
{
    response.add_header(name, value)
}

// The connection ends after one answer, which nobody keeps.
fn add_headers(response: &mut Response, kind: HeaderValue) -> Result<(), AllocError>
    ensures status { response.new.status ≡ response.old.status }
    ensures body { response.new.body ≡ response.old.body }
{
    add(response, HeaderName::from_static("content-type"), kind)?;
    add(
        response,
        HeaderName::from_static("cache-control"),
        HeaderValue::from_static("no-store"),
    )?;
    add(
        response,
        HeaderName::from_static("content-security-policy"),
        HeaderValue::from_static("default-src 'none'; style-src 'unsafe-inline'"),
    )?;
    add(
        response,
        HeaderName::from_static("allow"),
        HeaderValue::from_static("GET, HEAD"),
    )?;
    add(
        response,
        HeaderName::from_static("connection"),
        HeaderValue::from_static("close"),
    )
}

impl Service for Site<'_> {
    ghost answers = { λ old request response new.
        Answers old.figures.now (head_of request).method (uri_path (head_of request).uri) response × (new ≡ old) };

    fn call(
        &mut self,
        request: &Request<Bytes>,
        response: &mut Response,
    ) -> Result<(), AllocError> {
        let place = place_of(request.uri().path());
        let reads = is_read(request.method().as_str());
        let Content { status, kind, text } = found(self.alloc, self.figures, reads, place)?;
        response.status = status;
        response.body.put_slice(&text)?;
        add_headers(response, kind)
    }
}
