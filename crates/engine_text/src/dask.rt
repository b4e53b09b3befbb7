// What a program for Dask begins with.

/// The calls of Dask's distributed scheduler.
pub const DASK: &str = r#"#!/usr/bin/env python3
"""A script of tasks on Dask's distributed scheduler, written by `raysim export`.

It prints what main prints and how main ended, as `raysim serial` does. Its status is 0 where main ended with a value,
1 where it ended with a trap, and 2 where the engine failed: then the engine's own words stand on standard error.
"""

import argparse
import logging
import sys
import threading
import time
from contextlib import suppress
from operator import getitem

from distributed import Client, LocalCluster, get_client, get_worker, rejoin, secede

RUN = None
TIMEOUT = None


# The engine.


def start_engine(options):
    """A client of the scheduler that is named, else of a cluster of processes on this machine."""
    global RUN
    where = options.scheduler
    if where is None:
        quiet = {"dashboard_address": None, "silence_logs": logging.CRITICAL}
        where = LocalCluster(n_workers=options.workers, threads_per_worker=1, **quiet)
    client = Client(where)
    RUN = client.id
    return client


def stop_engine(client):
    """Ends the cluster that was started. On another, tasks for which nobody waited end within the timeout, and the workers let go of this run."""
    cluster = client.cluster
    if cluster is None:
        limit = time.monotonic() + (float("inf") if TIMEOUT is None else TIMEOUT)
        while (is_busy(client) or any(client.run(is_busy).values())) and time.monotonic() < limit:
            time.sleep(0.05)
        client.run(lambda dask_worker: vars(dask_worker).pop(RUN, None))
    client.close()
    if cluster is not None:
        cluster.close()


def is_busy(dask_worker):
    return not all(future.done() for future in vars(dask_worker).get(RUN, []))


def keep(future):
    """A future that this process bore is kept to the end, since the engine forgets what nobody keeps."""
    keeper = get_worker() if is_in_task() else get_client()
    vars(keeper).setdefault(RUN, []).append(future)
    return future


def is_in_task():
    try:
        get_worker()
    except ValueError:
        return False
    return True


def as_task(function):
    """A task ends only once the scheduler knows what it bore. Else another process might ask for that too early."""

    def run(*arguments):
        outcome = function(*arguments)
        born = vars(threading.current_thread()).pop("born", None)
        while born is not None and not get_client().run_on_scheduler(is_known, key=born.key):
            time.sleep(0.01)
        return outcome

    return run


def is_known(dask_scheduler, key):
    return key in dask_scheduler.tasks


def submit(task, retries, arguments):
    """Begins a task. The engine dereferences the futures among its arguments, but not what is in a `Reference`."""
    future = get_client().submit(task, *arguments, retries=retries, pure=False)
    threading.current_thread().born = future
    return keep(future)


def submit_for_several(task, count, retries, arguments):
    """Begins a task of several results, and for each of them one that takes it out."""
    whole = submit(task, retries, arguments)
    return [submit(getitem, retries, [whole, place]) for place in range(count)]


def store(value):
    """Makes an object of a value."""
    [future] = get_client().scatter([value], hash=False)
    return keep(future)


def wait_for(future):
    """What a future stands for. A task that waits gives its thread back meanwhile."""
    if not is_in_task():
        return future.result(TIMEOUT)
    secede()
    try:
        return future.result(TIMEOUT)
    finally:
        rejoin()


"#;
