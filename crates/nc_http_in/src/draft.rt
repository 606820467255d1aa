//! A request whose head was read, and whose body is coming.
ghost use Rattle.std.specs.Prelude.{◌≡◌, [], length, OnOk, OnErr};
ghost use Rattle.nc_http_head.specs.Heads.{AreOneLine};
ghost use Rattle.nc_http_in.specs.Items.{longer};
ghost use Rattle.nc_http_in.specs.Bodies.{with_body};

use nc_types::{List, NoMemory, Request};
use std::alloc::Global;
use std::marker::Model;

/// A request with the body so far. No value of a field has a CR or an LF.
#[derive(Drop)]
pub struct Draft {
    head: Request,
    body: Vec<u8>,
}

impl Model for Draft {
    ghost use Rattle.nc_types.specs.declared.request.Request.{Request};
    ghost use Rattle.nc_http_head.specs.Heads.{AreOneLine};
    ghost use Rattle.nc_http_in.specs.Bodies.{with_body};

    ghost Value = { Request };

    ghost view = { λ d. with_body d.head d.body.items };

    ghost invariant = { λ d. AreOneLine d.head.fields };
}

impl Draft {
    /// A request whose body has not begun.
    pub fn new(alloc: Global, head: Request) -> Draft
        requires { AreOneLine head.fields }
        ensures { result ≡ with_body head [] }
    {
        Draft {
            head,
            body: Vec::new(alloc),
        }
    }

    /// How many bytes of the body have come.
    pub fn len(&self) -> usize
        ensures { result ≡ length self.now.body }
    {
        self.body.len()
    }

    /// Puts bytes behind the body. Without memory it stays as it was.
    pub fn put(&mut self, piece: &[u8]) -> Result<(), NoMemory>
        ensures ok { OnOk result (self.new ≡ longer self.old piece.now) }
        ensures err { OnErr result (self.new ≡ self.old) }
    {
        self.body.extend_from_slice(piece)?;
        Ok(())
    }

    /// The request, with the body that has come.
    pub fn whole(self) -> Request
        ensures request { result ≡ self }
        ensures lines { AreOneLine result.fields }
    {
        let mut request = self.head;
        request.body = List::of(self.body);
        request
    }
}
