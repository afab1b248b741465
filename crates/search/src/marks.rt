// Marks by depth: how often each binder in scope is used, the outermost first.
ghost use Rattle.syntax.specs.Term.{var};
ghost use Rattle.search.specs.Marks.{Raisable, Marked};

// marks a use of the variable `number` under `depth` binders, by so much; a variable that names an input has no mark
pub fn mark(used: &mut [u64], depth: usize, number: usize, by: u64)
    requires { Raisable by used.old depth }
    ensures { Marked by (var number) depth used.old used.new }
{
    if number < depth {
        used[depth - 1 - number] += by;
    }
}
