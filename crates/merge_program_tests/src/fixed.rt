//! A resolver that is handed in, and two conflicts that it decides.
ghost use Rattle.std.specs.Prelude.{◌≡◌, ◌∷◌, [], IfOk, if◌then◌else◌, pos};
ghost use Rattle.merge_types.specs.declared.values.Value.TheVariants.{Int};

use crate::ending::{NONE, is_ended, outside, play};
use merge_resolve::{ConflictCase, Resolver};
use merge_types::{NoMemory, Value, Values};
use merge_units::Decision;
use std::alloc::Global;
use std::test::Fail;

/// Gives each conflict one value, or that value twice.
#[derive(Debug, Drop)]
pub(crate) struct Fixed {
    is_twice: bool,
    asked: u64,
}

impl Fixed {
    pub(crate) fn of(is_twice: bool) -> Fixed {
        Fixed { is_twice, asked: 0 }
    }
}

// The values that are given.
fn given(alloc: Global, is_twice: bool) -> Result<Values, NoMemory>
    ensures { IfOk result (λ values. values ≡ (if is_twice then Int (pos 42) ∷ Int (pos 42) ∷ [] else Int (pos 42) ∷ [])) }
{
    let mut values = Values::empty(alloc);
    values.push(Value::Int(42))?;
    if is_twice {
        values.push(Value::Int(42))?;
    }
    Ok(values)
}

impl Resolver for Fixed {
    ghost use Rattle.std.specs.Prelude.{◌∷◌, [], if◌then◌else◌, pos};
    ghost use Rattle.merge_types.specs.declared.values.Value.TheVariants.{Int};
    ghost use Rattle.merge_units.specs.declared.result.Decision.TheVariants.{Custom};

    ghost says = { λ it n asked. Custom (if it.is_twice then Int (pos 42) ∷ Int (pos 42) ∷ [] else Int (pos 42) ∷ []) };

    ghost tally_of = { λ it. it.asked };

    fn decide(&mut self, alloc: Global, _case: &ConflictCase) -> Result<Decision, NoMemory> {
        self.asked = self.asked.saturating_add(1);
        Ok(Decision::Custom(given(alloc, self.is_twice)?))
    }

    fn tally(&self) -> u64 {
        self.asked
    }
}

// Two sites, and the resolver that is handed in at place 5.
const ONE_VALUE: &str = r#"name = "first"
[[article]]
name = "item"
resolver = "handler5"
[[article.column]]
name = "qty"
type = "int"
[[subscription]]
site = 1
host = "h1"
[[subscription]]
site = 2
host = "h2"
"#;

// The same with that at place 6.
const TWO_VALUES: &str = r#"name = "first"
[[article]]
name = "item"
resolver = "handler6"
[[article.column]]
name = "qty"
type = "int"
[[subscription]]
site = 1
host = "h1"
[[subscription]]
site = 2
host = "h2"
"#;

const SCRIPT: &str = r#"insert 0 item qty=1
sync 1
sync 2
update 1 item 0.1 qty=10
update 2 item 0.1 qty=20
sync 2
sync 1
show 0 item
conflicts 0
"#;

// A value for the one column of the row stands in the place of both; two values fit no row of one
// column, and count as none.
const DECIDED: &[(&str, &str)] = &[
    (
        ONE_VALUE,
        r#"row 00000000-0000-8000-8000-000000000001
done 0 1 1
done 0 1 1
ok
ok
done 1 1 2
done 1 1 3
00000000-0000-8000-8000-000000000001 42
rows 1
1 item 00000000-0000-8000-8000-000000000001 1 0 custom 0 live 20
2 item 00000000-0000-8000-8000-000000000001 1 1 custom 0 live 10
conflicts 2
"#,
    ),
    (
        TWO_VALUES,
        r#"row 00000000-0000-8000-8000-000000000001
done 0 1 1
done 0 1 1
ok
ok
done 1 1 2
done 1 1 3
00000000-0000-8000-8000-000000000001 20
rows 1
1 item 00000000-0000-8000-8000-000000000001 1 1 publisher 0 live 10
conflicts 1
"#,
    ),
];

#[test]
fn resolvers_that_are_handed_in(rt: HostRuntime) -> Result<(), Fail> {
    for (publication, answers) in DECIDED {
        let outside = outside(rt.alloc(), &[])?;
        let (ended, host) = play(rt.alloc(), publication, SCRIPT.as_bytes(), &NONE, outside)?;
        assert!(rt; is_ended(ended, &host, 0, answers, ""), "{publication}");
    }
    Ok(())
}
