// Which agreements of a group are those of an adopt-commit object.
ghost use Rattle.std.specs.Prelude.{◌≡◌, ◌<◌};
ghost use Rattle.la_commit.specs.Instances.{first_instance, second_instance, commit_of};
ghost use Rattle.la_commit.specs.Instances.{is_first_instance, is_second_instance};

/// The most adopt-commit objects that a group may have, with two instances each.
pub const MAX_COMMITS: u8 = 16;

/// The instance of an object's first agreement: 1, 3, and so on to 31.
pub fn first_instance(commit: u8) -> u8
    requires { commit < MAX_COMMITS }
    ensures { result ≡ first_instance commit }
{
    2 * commit + 1
}

/// The instance of an object's second agreement: 2, 4, and so on to 32.
pub fn second_instance(commit: u8) -> u8
    requires { commit < MAX_COMMITS }
    ensures { result ≡ second_instance commit }
{
    2 * commit + 2
}

/// Whether an instance is of some object's first agreement, whatever number the object has.
pub fn is_first_instance(instance: u8) -> bool
    ensures { result ≡ is_first_instance instance }
{
    instance % 2 == 1
}

/// Whether an instance is of some object's second agreement, whatever number the object has.
/// Instance 0 is of neither agreement.
pub fn is_second_instance(instance: u8) -> bool
    ensures { result ≡ is_second_instance instance }
{
    instance % 2 == 0 && instance != 0
}

/// The number of the adopt-commit object whose first agreement uses this instance.
pub fn commit_of(instance: u8) -> u8
    ensures { result ≡ commit_of instance }
{
    instance / 2
}
