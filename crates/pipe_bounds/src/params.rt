#![tactic(auto)]
//! The values of a program's parameters.

use crate::fault::ParamFault;
use pipe_checks::{Checked, Symbol};
use pipe_tokens::Name;
use std::alloc::{AllocError, Global};
use std::marker::Model;

/// A parameter, and its value if it has one.
#[derive(Clone, Copy, Debug)]
pub struct Setting {
    pub name: Name,
    pub value: Option<i32>,
}

/// The parameters of a program, each with its value if it has one. Contracts see the list of its settings.
#[derive(Debug, Drop)]
pub struct Params {
    settings: Vec<Setting>,
}

impl Model for Params {
    ghost use Rattle.std.specs.Prelude.{List};
    ghost use Rattle.pipe_bounds.specs.declared.params.Setting.{Setting as SettingType};

    ghost Value = { List SettingType };

    ghost view = { λ p. p.settings.items };
}

impl Params {
    ghost use Rattle.std.specs.Prelude.{◌≡◌, ◌↔◌, None, Err, map, slice_get, IfOk, OnOk, OnErr};
    ghost use Rattle.pipe_bounds.specs.declared.fault.ParamFault.TheVariants.{NoSuchParam, SetTwice};
    ghost use Rattle.pipe_bounds.specs.Settings.{place_in, value_at, SetsOne, IsSet, param_value};
    ghost use Rattle.pipe_bounds.specs.Unset.{unset};
    ghost use Rattle.pipe_checks.specs.Checking.{params_in};

    /// All parameters, without a value.
    pub fn of(alloc: Global, checked: &Checked) -> Result<Self, AllocError>
        ensures { IfOk result (λ p. p ≡ map unset (params_in checked.now)) }
    {
        Params::from_symbols_without_values(alloc, checked.params())
    }

    /// These parameters with these values, in this order. It is not checked that they are those of a program.
    pub fn from_settings(settings: Vec<Setting>) -> Self
        ensures { result ≡ settings.items }
    {
        Params { settings }
    }

    fn from_symbols_without_values(alloc: Global, params: &[Symbol]) -> Result<Self, AllocError>
        ensures { IfOk result (λ p. p ≡ map unset params.now) }
    {
        let mut settings = Vec::new(alloc);
        for param in params {
            settings.push(Setting {
                name: param.name,
                value: None,
            })?;
        }
        Ok(Params { settings })
    }

    /// The parameters with their values, in the order of the text.
    pub fn settings(&self) -> &[Setting]
        ensures { result.now ≡ self.now }
    {
        &self.settings
    }

    /// The value of the parameter of this number; none where it has none, or where there is no such parameter.
    pub fn get(&self, index: usize) -> Option<i32>
        ensures { result ≡ value_at (slice_get self.now index) }
    {
        self.settings.as_slice().get(index)?.value
    }

    // The number of the first parameter of this name.
    fn find_param_number(&self, name: &[u8]) -> Option<usize>
        ensures { result ≡ place_in self.now name.now }
    {
        self.settings
            .iter()
            .position(|setting| setting.name.as_bytes() == name)
    }

    /// Sets the value of the parameter of this name, if it has none yet.
    pub fn set(&mut self, name: &str, value: i32) -> Result<(), ParamFault>
        ensures ok { OnOk result (SetsOne self.old self.new name.now value) }
        ensures err { OnErr result (self.new ≡ self.old) }

        ensures no_such { (result ≡ Err NoSuchParam) ↔ (place_in self.old name.now ≡ None) }
        ensures twice { (result ≡ Err SetTwice) ↔ IsSet self.old name.now }
    {
        let Some(number) = self.find_param_number(name.as_bytes()) else {
            return Err(ParamFault::NoSuchParam);
        };
        if self.settings[number].value.is_some() {
            return Err(ParamFault::SetTwice);
        }
        self.settings[number].value = Some(value);
        Ok(())
    }

    /// The value of the parameter of this name; 0 where there is no such parameter, or it has no value.
    pub fn value_or_zero(&self, name: &Name) -> i32
        ensures { result ≡ param_value self.now name.now }
    {
        match self.find_param_number(name.as_bytes()) {
            Some(number) => self.get(number).unwrap_or(0),
            None => 0,
        }
    }
}
