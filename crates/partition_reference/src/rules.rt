//! Rules of implicit subscriptions.
ghost use Rattle.std.specs.Prelude.{◌≡◌, ◌&&◌, OnErr, true};
ghost use Rattle.std.specs.List.{list_any};
ghost use Rattle.stream_ident.specs.Name.{same_name};
ghost use Rattle.stream_ident.specs.declared.rule.Rule.{Rule};
ghost use Rattle.stream_model.specs.Publishing.{add_rule};
ghost use Rattle.stream_model.specs.Step.{takes_memory};
ghost use Rattle.stream_ident.specs.Words.{Performs};

use crate::positions::is_same_name;
use std::alloc::AllocError;
use stream_ident::{Name, Rule};
use stream_model::{PlainPartition, Reply};

/// Grains of a kind shall consume the streams of a namespace: the rule goes to the end of the list. Where it
/// fails to allocate, nothing has changed.
pub fn add_rule(p: &mut PlainPartition, kind: Name, namespace: Name) -> Result<Reply, AllocError>
    ensures performs { Performs p.old p.new result (add_rule p.old kind namespace) }
    ensures memory { OnErr result (takes_memory (add_rule p.old kind namespace).1 ≡ true) }
{
    let rules = p.rules.as_slice();
    if has_rule(rules, &kind, &namespace) {
        return Ok(Reply::RuleThere);
    }
    if rules.len() >= p.limits.rules {
        return Ok(Reply::TooMany);
    }
    let from = p.batches;
    p.rules.push(Rule {
        kind,
        namespace,
        from,
    })?;
    Ok(Reply::RuleAdded { from })
}

/// Whether there is a rule of this kind and namespace.
fn has_rule(rules: &[Rule], kind: &Name, namespace: &Name) -> bool
    ensures { result
        ≡ list_any (λ (rule : Rule). same_name kind.now rule.kind && same_name namespace.now rule.namespace) rules.now }
{
    rules.iter().any(|rule| is_rule(rule, kind, namespace))
}

/// Whether a rule is of this kind and namespace.
fn is_rule(rule: &Rule, kind: &Name, namespace: &Name) -> bool
    ensures { result ≡ (same_name kind.now rule.now.kind && same_name namespace.now rule.now.namespace) }
{
    is_same_name(kind, &rule.kind) && is_same_name(namespace, &rule.namespace)
}
