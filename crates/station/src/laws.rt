// What every station keeps, as laws of the definitions, for every kind of value. The function only
// calls the sheets' law: what it promises is the law.
ghost use Rattle.machine.specs.Effect.{meaning_of};
ghost use Rattle.station.specs.Kept.{NewKeeps, CallsKeep, ReadingsKeep};

use sheet::round_trips_stand;
use value::Kind;

// A new station has it, and each call and each reading of a sheet keeps it, refused or not.
pub fn stations_keep_stands<K: Kind>()
    ensures new { NewKeeps K }
    ensures calls { CallsKeep (meaning_of K.Kind) }
    ensures readings { ReadingsKeep K.Kind.ZERO K.Kind.reads }
{
    round_trips_stand::<K>();
}
