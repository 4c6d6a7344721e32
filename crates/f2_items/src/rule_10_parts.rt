// The defects by rule 10, part after part.
ghost use Rattle.std.specs.Prelude.{IfOk};
ghost use Rattle.f2_bytes.specs.Bytes.{Image};
ghost use Rattle.f2_bytes.specs.Check.{nids, defects};
ghost use Rattle.f2_defects.specs.Collected.{Collects};
ghost use Rattle.f2_items.specs.Directories.{IsGathered, RulesFind};
ghost use Rattle.f2_items.specs.Directories.{defects_before as defects_before_in};
ghost use Rattle.f2_survey.specs.Parts.{first_parts};

use crate::directories::Directories;
use crate::rule_10_items::ItemRules;
use crate::rules_9_to_11_links::parent_defects;
use f2_defects::Collector;
use std::alloc::{AllocError, Global};

// The first five parts, which look at single items.
fn item_parts(alloc: Global, rules: &ItemRules) -> Result<Collector, AllocError>
    ensures { IfOk result (λ c. (image : Image) → RulesFind (defects_before_in image (nids image)) rules.now → Collects c (first_parts image 10 5)) }
{
    let mut c = Collector::new(alloc, 1);
    c.append(&rules.illegal)?;
    c.append(&rules.twins)?;
    c.append(&rules.hashes)?;
    c.append(&rules.buckets)?;
    c.append(&rules.kinds)?;
    Ok(c)
}

/// All nine parts.
pub fn check_directories(alloc: Global, d: &Directories) -> Result<Collector, AllocError>
    ensures { IfOk result (λ c. (image : Image) → IsGathered image (nids image) d.now → Collects c (defects image 10)) }
{
    let mut c = item_parts(alloc, &d.names.rules)?;
    c.append(&d.wholes.depths)?;
    c.append(&d.wholes.dots)?;
    c.append(&parent_defects(alloc, d)?)?;
    c.append(&d.wholes.sizes)?;
    Ok(c)
}
