//! The accounts of the known tenants.

ghost use Rattle.std.specs.Prelude.{◌≡◌, true, None, IfNone, IfOk, IfSome, OnOk, OnErr, map as map_list, ℕ, List, Some, if◌then◌else◌};
ghost use Rattle.std.specs.Option.{option_copied, option_copied_mut};
ghost use Rattle.std.specs.Borrow.{sem};
ghost use Rattle.std.specs.FinMap as map;
ghost use Rattle.indexmap.specs.IndexMap.{get_by_text};
ghost use Rattle.grain_id.specs.Names.{same_text};
ghost use Rattle.tenant_accounts.specs.Kept.{fresh_account, fresh_accounts};
ghost use Rattle.tenant_accounts.specs.inside.Accounts.{StandsAt};
ghost use Rattle.tenant_accounts.specs.Sends.{HasSent, NothingSent, send_of, sent_by, with_sent};

use crate::account::{Account, Sent, sent_by};
use grain_id::{GrainId, Tenant};
use indexmap::IndexMap;
use request_codec::Message;
use std::alloc::{AllocError, Global};
use std::collections::VecDeque;
use std::marker::Model;
use tenant_gate::Limits;

mod accepted;
mod changes;

pub use accepted::LAST_NUMBER;

/// The accounts of the known tenants, found by the hash of the tenant's name. The account that was looked for last is found by its
/// place, with one comparison of names.
#[derive(Drop)]
pub struct Accounts {
    pub(crate) by_name: IndexMap<String, Account>,
    /// The names of the tenants, in the order of their accounts: a copy of one shares its text.
    names: Vec<Tenant>,
    latest: usize,
}

impl Model for Accounts {
    ghost use Rattle.std.specs.Coded.{codes};
    ghost use Rattle.std.specs.FinMap.{FinMap};
    ghost use Rattle.grain_id.specs.Names.{text_cmp};
    ghost use Rattle.request_codec.specs.Code.{coded_tree};
    ghost use Rattle.tenant_accounts.specs.Kept.{by_text_code};
    ghost use Rattle.tenant_accounts.specs.Kept as kept;
    ghost use Rattle.tenant_accounts.specs.inside.Accounts.{by_bytes};

    ghost Value = { FinMap text_cmp kept.Account };

    ghost coded = { Prim.hlevel (codes, by_text_code, coded_tree) };

    ghost view = { λ a. by_bytes a.by_name };
}

impl Accounts {
    ghost use Rattle.tenant_accounts.specs.inside.Lending.{LendsAccount};

    /// A fresh account for each of the tenants, by the first limits of each.
    pub fn new(alloc: Global, tenants: &[(Tenant, Limits)]) -> Result<Accounts, AllocError>
        ensures { IfOk result (λ a. a ≡ fresh_accounts tenants.now) }
    {
        let mut by_name = IndexMap::new(alloc);
        let mut names = Vec::new(alloc);
        for (tenant, limits) in tenants {
            if !by_name.contains_key(tenant.text()) {
                add(alloc, &mut by_name, tenant, *limits)?;
                names.push(tenant.clone()?)?;
            }
        }
        Ok(Accounts {
            by_name,
            names,
            latest: 0,
        })
    }

    /// The tenant's name, to be copied with no text of its own. It may be left out.
    pub fn name(&self, tenant: &str) -> Option<&Tenant>
        ensures { IfSome result (λ name. name.now ≡ tenant.now) }
    {
        let place = place_of(&self.by_name, self.latest, tenant)?;
        let name = self.names.get(place)?;
        if name.text() == tenant {
            Some(name)
        } else {
            None
        }
    }

    /// The tenant's account, or nothing if the tenant isn't known.
    pub fn get(&self, tenant: &str) -> Option<&Account>
        ensures { option_copied result ≡ map.get self.now tenant.now }
    {
        let place = place_of(&self.by_name, self.latest, tenant)?;
        let (_, account) = self.by_name.get_index(place)?;
        Some(account)
    }

    /// The tenant's account is looked for: those that come next find it sooner.
    pub fn look_for(&mut self, tenant: &str)
        ensures { self.new ≡ self.old }
    {
        if let Some(place) = place_of(&self.by_name, self.latest, tenant) {
            self.latest = place;
        }
    }

    /// The tenant's account, which may be changed where it stands.
    pub fn get_mut(&mut self, tenant: &str) -> Option<&mut Account>
        ensures* writes_back { sem 𝓛 (LendsAccount self.entry tenant.now result) }
        ensures value { option_copied_mut result ≡ map.get self.old tenant.now }
    {
        let place = place_of(&self.by_name, self.latest, tenant)?;
        self.by_name.get_index_mut(place)
    }

    /// A grain that sent something that is left to deliver, or none if there is none. It walks over
    /// all accounts.
    pub fn first_sender(&self) -> Option<&GrainId>
        ensures found { IfSome result (λ grain. HasSent self.now grain.now) }
        ensures none { IfNone result (NothingSent self.now) }
    {
        'places: for place in 0..self.by_name.len() {
            let Some((_, account)) = self.by_name.get_index(place) else {
                unreachable!()
            };
            if let Some(grain) = account.first_sender() {
                return Some(grain);
            }
        }
        None
    }

    /// The grain sent these, after what its tenant's grains sent before. A turn mostly sends nothing.
    ///
    /// # Errors
    ///
    /// Out of memory: nothing changed.
    pub fn send_each(
        &mut self,
        alloc: Global,
        source: &GrainId,
        sends: &[(GrainId, Message)],
    ) -> Result<(), AllocError>
        ensures done { OnOk result (self.new ≡ with_sent self.old source.now.tenant (map.get self.old source.now.tenant)
            (sent_by source.now sends.now)) }
        ensures unchanged { OnErr result (self.new ≡ self.old) }
    {
        if sends.is_empty() {
            return Ok(());
        }
        self.send_some(alloc, source, sends)
    }

    /// The same, where it sent something.
    #[inline(never)]
    fn send_some(
        &mut self,
        alloc: Global,
        source: &GrainId,
        sends: &[(GrainId, Message)],
    ) -> Result<(), AllocError>
        ensures done { OnOk result (self.new ≡ with_sent self.old source.now.tenant (map.get self.old source.now.tenant)
            (sent_by source.now sends.now)) }
        ensures unchanged { OnErr result (self.new ≡ self.old) }
    {
        let sent = sent_by(alloc, source, sends)?;
        self.send(alloc, source.tenant(), sent)
    }

    /// Grains of the tenant sent these, after what they sent before.
    ///
    /// # Errors
    ///
    /// Out of memory: nothing changed.
    fn send(&mut self, alloc: Global, tenant: &str, sent: VecDeque<Sent>) -> Result<(), AllocError>
        ensures done { OnOk result (self.new ≡ with_sent self.old tenant.now (map.get self.old tenant.now)
            (map_list send_of sent.items)) }
        ensures unchanged { OnErr result (self.new ≡ self.old) }
    {
        if sent.is_empty() {
            return Ok(());
        }
        let Some(account) = self.get_mut(tenant) else {
            return Ok(());
        };
        account.send(alloc, sent)
    }
}

/// Whether the tenant's account stands at this place.
fn is_at(by_name: &IndexMap<String, Account>, place: usize, tenant: &str) -> bool
    ensures { result ≡ true → StandsAt by_name.now place tenant.now }
{
    let Some((name, _)) = by_name.get_index(place) else {
        return false;
    };
    name.as_str() == tenant
}

/// Where the tenant's account stands, if the tenant is known. First it is looked for at this place.
fn place_of(by_name: &IndexMap<String, Account>, latest: usize, tenant: &str) -> Option<usize>
    ensures found { IfSome result (λ place. StandsAt by_name.now place tenant.now) }
    ensures none { IfNone result (get_by_text by_name.now tenant.now ≡ None) }
{
    if is_at(by_name, latest, tenant) {
        return Some(latest);
    }
    place_by_hash(by_name, tenant)
}

/// Where the tenant's account stands, by the hash of its name.
#[inline(never)]
fn place_by_hash(by_name: &IndexMap<String, Account>, tenant: &str) -> Option<usize>
    ensures found { IfSome result (λ place. StandsAt by_name.now place tenant.now) }
    ensures none { IfNone result (get_by_text by_name.now tenant.now ≡ None) }
{
    by_name.get_index_of(tenant)
}

/// Adds the account of a tenant that has none.
fn add(
    alloc: Global,
    by_name: &mut IndexMap<String, Account>,
    tenant: &Tenant,
    limits: Limits,
) -> Result<(), AllocError>
    ensures { OnOk result ((name : List ℕ) → get_by_text by_name.new name ≡ (if same_text tenant.now name then Some (fresh_account limits)
        else get_by_text by_name.old name)) }
{
    by_name.insert(
        String::from_str(alloc, tenant.text())?,
        Account::new(alloc, limits),
    )?;
    Ok(())
}
