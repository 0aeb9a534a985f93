//! Modulation formats.
use eon_base::name::Name;
use std::marker::Model;

/// A modulation format: how far it reaches, in km, and how many Gbit/s it puts into 12.5 GHz.
#[derive(Clone, Copy, Debug)]
pub struct Format {
    pub name: Name,
    pub reach: u32,
    pub per: u16,
}

impl Model for Format {
    ghost use Rattle.eon_model.specs.Formats.{Format as FormatRow};

    ghost Value = { FormatRow };

    ghost view = { λ f. record { name = f.name; reach = f.reach; per = f.per } };

    ghost inverse = { λ v. record { name = v.name; reach = v.reach; per = v.per } };
}
