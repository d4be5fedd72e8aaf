// What lists mean: a law which no code runs.
ghost use Rattle.la_list.specs.LatestLaw.{LatestStandsWherePut};

/// What an update puts in under a larger stamp than all others have stands where it is put: at the
/// head, or right behind the element that it names, if that stands without it. So what is put in
/// under the number of a view's updates stands, in that view, right where it is put.
pub fn the_latest_stands_where_it_was_put()
    ensures { LatestStandsWherePut }
{}
