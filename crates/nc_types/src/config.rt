//! A configuration that was read: where the server listens, and what it does at each path.
//!
//! `nc_conf` makes it from a text; what stands above names it without that crate.
use crate::list::{Bytes, List};
use crate::settings::Settings;
use std::marker::Model;

/// A part of a word that gives a channel id.
#[derive(Drop)]
pub enum IdPart {
    /// Bytes that stand for themselves.
    Plain(Bytes),
    /// The name of an argument in the query of a request, whose value stands here.
    Arg(Bytes),
}

/// A word that gives a channel id: its parts, one after the other.
#[derive(Drop)]
pub struct IdText {
    pub parts: List<IdPart>,
}

/// An address that the server listens at. The port is not 0.
#[derive(Drop)]
pub struct Listen {
    pub host: Bytes,
    pub port: u16,
}

impl Model for Listen {
    ghost use Rattle.nc_types.specs.Config.{ListenAt, IsPort};

    ghost Value = { ListenAt };

    ghost view = { λ l. record { host = l.host; port = l.port } };

    ghost invariant = { λ l. IsPort l.port };
}

/// What is done at some paths.
#[derive(Drop)]
pub struct Location {
    /// Whether it is for this path alone, and not for each path that begins so.
    pub exact: bool,
    pub path: Bytes,
    /// Whether messages are published here.
    pub publisher: bool,
    /// Whether subscribers may ask by long polls.
    pub longpoll: bool,
    /// Whether subscribers may ask by WebSockets.
    pub socket: bool,
    /// The words that give the channel ids of a request, in their order.
    pub ids: List<IdText>,
    pub settings: Settings,
}

/// A whole configuration: 1 to 16 workers, and 1 to 4,096 slots for each.
#[derive(Drop)]
pub struct Config {
    pub workers: u8,
    pub slots: u32,
    pub listen: List<Listen>,
    /// The settings of what is at no location, as the direct requests of a script.
    pub base: Settings,
    /// The locations, in the order of the text.
    pub locations: List<Location>,
}

impl Model for Config {
    ghost use Rattle.nc_types.specs.Config.{ConfigAt, IsWorkers, IsSlots};

    ghost Value = { ConfigAt };

    ghost view = { λ c. record { workers = c.workers; slots = c.slots; listen = c.listen; base = c.base; locations = c.locations } };

    ghost invariant = { λ c. IsWorkers c.workers × IsSlots c.slots };
}
